// How a run starts: what refuses it, in the paper's order, or the script of its format.
ghost use Rattle.std.specs.Prelude.{◌≡◌, ◌&&◌, ◌||◌, List, ℕ, ◌≤◌, ltb, eqb, length};
ghost use Rattle.card.specs.Lent.{held};
ghost use Rattle.card.specs.Row.{entries, row_of};
ghost use Rattle.card.specs.Tree.{is_root};
ghost use Rattle.card.specs.Promised.{ParentsSmaller};
ghost use Rattle.engine.specs.Calls.{arguments_of};
ghost use Rattle.engine.specs.Numbers as spec;
ghost use Rattle.engine.specs.Promised.{StartFits};

use crate::{Call, LONGEST_SCRIPT, Refused};
use card::lent::LentCard;
use command::Format;
use tlv::template::{Template, template_of};

// How a run starts: with a compact script, or with the template of an expanded one.
#[derive(Clone, Copy)]
pub enum Start {
    Compact,
    Expanded(Template),
}

// Returns the format that a script is found to have: expanded where it starts with AA or AE.
fn detected(script: &[u8]) -> Format
    requires { 1 ≤ length script.now }
    ensures { result ≡ spec.detected script.now }
{
    if (script[0] == 0xAA) | (script[0] == 0xAE) {
        return Format::Expanded;
    }
    Format::Compact
}

// Returns the format of a run by its format number: compact, expanded, or the one that its script is found to have.
fn format_of(format: u8, script: &[u8]) -> Format
    requires { 1 ≤ length script.now }
    ensures { result ≡ spec.format_of format script.now }
{
    if format == 0 {
        return Format::Compact;
    }
    if format == 1 {
        return Format::Expanded;
    }
    detected(script)
}

// Returns how many bytes of response memory a format needs at least.
fn least_response(format: Format) -> usize
    ensures { result ≡ spec.least_response format }
{
    match format {
        Format::Compact => 1024,
        Format::Expanded => 1024,
    }
}

// Whether a number is the entry number of an application's root.
fn is_application(table: &[u8], application: usize) -> bool
    requires { ParentsSmaller table.now }
    ensures { result ≡ (ltb application (entries table.now) && is_root (row_of table.now application)) }
{
    if card::entries(table) <= application {
        return false;
    }
    card::tree::root_of(table, application) == application
}

// Whether format, application and access domain are known.
fn arguments_fit(table: &[u8], call: Call) -> bool
    requires { ParentsSmaller table.now }
    ensures { result ≡ (spec.format_known call.format && ((ltb call.application (entries table.now) && is_root (row_of table.now call.application)) && (eqb call.domain 0x00 || eqb call.domain 0xFF))) }
{
    (call.format <= 2)
        & (is_application(table, call.application)
            & ((call.domain == 0x00) | (call.domain == 0xFF)))
}

// Whether a script has 1 to 1,024 bytes.
fn script_fits(script: &[u8]) -> bool
    ensures { result ≡ spec.script_fits script.now }
{
    (1 <= script.len()) & (script.len() <= LONGEST_SCRIPT)
}

// Returns how a script of a format starts; its template alone can refuse it.
fn script_start(format: Format, script: &[u8]) -> Result<Start, Refused>
    ensures { (spec.by_number result ≡ spec.script_start format script.now) × StartFits (length script.now) result }
{
    match format {
        Format::Compact => Ok(Start::Compact),
        Format::Expanded => {
            let Some(template) = template_of(script) else {
                return Err(Refused::NoTemplate);
            };
            Ok(Start::Expanded(template))
        }
    }
}

// Returns how a run starts whose response memory has `room` bytes.
pub fn start_of(
    call: Call,
    script: &[u8],
    room: usize,
    card: &LentCard<'_>,
) -> Result<Start, Refused>
    ensures { ((response : List ℕ) → length response ≡ room → spec.by_number result ≡ spec.start_of (held card.now) (arguments_of call script.now response)) × StartFits (length script.now) result }
{
    if !journal::sound::sound_card(card.table, card.files, card.journal) {
        return Err(Refused::NotSound);
    }
    if !arguments_fit(card.table, call) {
        return Err(Refused::UnknownArgument);
    }
    if !script_fits(script) {
        return Err(Refused::ScriptLength);
    }
    let form = format_of(call.format, script);
    if room < least_response(form) {
        return Err(Refused::ResponseShort);
    }
    if !journal::read::mark_fits(card.journal) {
        return Err(Refused::JournalFull);
    }
    script_start(form, script)
}
