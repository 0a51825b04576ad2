// The template of a script, and what stands in its value.
ghost use Rattle.std.specs.Prelude.{◌≡◌, ◌+◌, ◌≤◌, length};
ghost use Rattle.octets.specs.Bytes.{part};
ghost use Rattle.tlv.specs.Lengths.{length_at};
ghost use Rattle.tlv.specs.Templates as spec;
ghost use Rattle.tlv.specs.Promised.{TemplateFits, ItemFits};

use crate::lengths::{Length, OTHER_TAG, WRONG_LENGTH, code_of, length_at};

// The template of a script: its form, and where its value begins and ends.
#[derive(Clone, Copy, Debug, PartialEq, Eq)]
pub enum Template {
    Definite(usize, usize),
    Indefinite(usize, usize),
}

// What stands at a place of a template's value: a C-APDU (where it begins and how many bytes it has), a bad format, or nothing more.
#[derive(Clone, Copy)]
pub enum Item {
    Capdu(usize, usize),
    Bad(usize),
    End,
}

// A C-APDU has at least four bytes.
const LEAST_CAPDU: usize = 4;

// Returns the template of a script with the tag AA: its length runs exactly to the script's end, or there is none.
fn definite(script: &[u8]) -> Option<Template>
    requires { 1 ≤ length script.now }
    ensures { result ≡ spec.definite (length_at script.now 1 (length script.now)) (length script.now) }
{
    let Length::Found(n, at) = length_at(script, 1, script.len()) else {
        return None;
    };
    if at + n == script.len() {
        return Some(Template::Definite(at, script.len()));
    }
    None
}

// Returns the template of a script with the tag AE: 80 comes next and 00 00 are the last two bytes, or there is none.
fn indefinite(script: &[u8]) -> Option<Template>
    ensures { result ≡ spec.indefinite script.now (length script.now) }
{
    let end = script.len();
    if end < 4 {
        return None;
    }
    if (script[1] == 0x80) & ((script[end - 2] == 0) & (script[end - 1] == 0)) {
        return Some(Template::Indefinite(2, end - 2));
    }
    None
}

// Returns the template of a script.
pub fn template_of(script: &[u8]) -> Option<Template>
    ensures { (result ≡ spec.template_of script.now) × TemplateFits (length script.now) result }
{
    if script.len() < 1 {
        return None;
    }
    if script[0] == 0xAA {
        return definite(script);
    }
    if script[0] == 0xAE {
        return indefinite(script);
    }
    None
}

// Returns what the length at the place `at` gives, in a value that ends at `end`: a C-APDU, or a bad format.
fn value_at(script: &[u8], at: usize, end: usize) -> Item
    requires { (at ≤ end) × (end ≤ length script.now) }
    ensures { result ≡ spec.value_at (length_at script.now at end) end }
{
    let answer = length_at(script, at, end);
    let Length::Found(n, from) = answer else {
        return Item::Bad(code_of(answer));
    };
    if (from + n <= end) & (LEAST_CAPDU <= n) {
        return Item::Capdu(from, n);
    }
    Item::Bad(WRONG_LENGTH)
}

// Returns what stands at the place `at` of a value that ends at `end`.
pub fn item_at(script: &[u8], at: usize, end: usize) -> Item
    requires { (at ≤ end) × (end ≤ length script.now) }
    ensures { (result ≡ spec.item_at script.now at end) × ItemFits at end result }
{
    if end <= at {
        return Item::End;
    }
    if !((script[at] == 0x22) | (script[at] == 0xA2)) {
        return Item::Bad(OTHER_TAG);
    }
    value_at(script, at + 1, end)
}

// Returns the C-APDU of `size` bytes that begins at `from`, as a part of the script.
pub fn capdu<'s>(script: &'s [u8], from: usize, size: usize) -> &'s [u8]
    requires { from + size ≤ length script.now }
    ensures { result.now ≡ part script.now from size }
{
    &script[from..from + size]
}
