// The session of one script.
#![tactic(auto)]

pub mod fcp;
pub mod select;

ghost use Rattle.std.specs.Prelude.{◌≡◌, ◌<◌};
ghost use Rattle.session.specs.Session as spec;

use card::Row;

// Where a script stands: entry numbers of its root, its directory and its file (0: none), the record number (0: none), how many of
// the waiting bytes wait, and the word that is kept for them. These are the numbers of a session, passed on by value, and 0 for none is the
// session's own number: GET RESPONSE and the record modes count from it.
#[derive(Clone, Copy)]
pub struct Standing {
    pub root: u8,
    pub directory: u8,
    pub file: u8,
    pub record_number: u8,
    pub valid: u8,
    pub word: u16,
}

// "One session's directory, file, record number and waiting bytes": where a script stands, and 255 waiting bytes, of which
// `standing.valid` says how many wait.
#[derive(Drop)]
pub struct Session {
    pub standing: Standing,
    pub waiting: [u8; 255],
}

// Returns the session that a script of an application starts with: "255 waiting bytes of zero, none of them valid".
#[tactic(auto, unfolding(crate::specs::Session::start_standing, crate::specs::Session::start_waiting))]
pub fn start(application: usize) -> Session
    requires { application < 256 }
    ensures { result ≡ spec.start application }
{
    let root = application as u8;
    let standing = Standing {
        root,
        directory: root,
        file: 0,
        record_number: 0,
        valid: 0,
        word: 0,
    };
    Session {
        standing,
        waiting: [0; 255],
    }
}

// Returns where the script stands once the first `valid` of the waiting bytes wait, with `word` kept for them.
#[tactic(auto, unfolding(crate::specs::Session::waits))]
pub fn waits(s: Standing, valid: usize, word: usize) -> Standing
    requires { (valid < 256) × (word < 65536) }
    ensures { result ≡ spec.waits s valid word }
{
    Standing {
        valid: valid as u8,
        word: word as u16,
        ..s
    }
}

// Returns where the script stands once what waited is dropped.
pub fn dropped(s: Standing) -> Standing
    ensures { result ≡ spec.dropped s }
{
    waits(s, 0, 0)
}

// Returns where the script stands once its record number is `number`.
#[tactic(auto, unfolding(crate::specs::Session::at_record))]
pub fn at_record(s: Standing, number: usize) -> Standing
    requires { number < 256 }
    ensures { result ≡ spec.at_record s number }
{
    Standing {
        record_number: number as u8,
        ..s
    }
}

// Returns where the script stands once it has moved to a directory, a file and a record number.
#[tactic(auto, unfolding(crate::specs::Session::moved))]
fn moved(s: Standing, directory: usize, file: usize, number: u8) -> Standing
    requires { (directory < 256) × (file < 256) }
    ensures { result ≡ spec.moved s directory file number }
{
    Standing {
        directory: directory as u8,
        file: file as u8,
        record_number: number,
        ..s
    }
}

// Returns where the script stands after entry e, with its row r, was selected.
#[tactic(auto, unfolding(crate::specs::Session::selected, octets::specs::Choice::pick))]
pub fn selected(s: Standing, e: usize, r: Row) -> Standing
    requires { (e < 256) × (r.parent < 256) }
    ensures { result ≡ spec.selected s e r }
{
    if card::rules::is_directory(r) {
        return moved(s, e, 0, 0);
    }
    if r.kind == card::CYCLIC {
        return moved(s, r.parent, e, 1);
    }
    moved(s, r.parent, e, 0)
}
