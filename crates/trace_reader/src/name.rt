// Names, as in specifications.

ghost use Rattle.std.specs.Prelude.{◌≡◌, Some, None, if◌then◌else◌, option_map, chars, is_some};
ghost use Rattle.std.specs.List.{list_all};
ghost use Rattle.unicode_ident.specs.Ident.{is_xid_continue};
ghost use Rattle.spec_lexer.specs.Found.{word_of};
ghost use Rattle.spec_lexer.specs.Spelling.{begins_name};
ghost use Rattle.trace_reader.specs.Form.{are_name_characters, is_name};

use std::str;

/// The name that bytes spell, of any length, where they spell one.
#[tactic(auto, unfolding(crate::specs::Form::is_name))]
pub fn name_of(bytes: &[u8]) -> Option<&str>
    ensures { option_map (λ n. n.now) result ≡ (if is_name bytes.now then Some bytes.now else None) }
{
    match str::from_utf8(bytes) {
        Ok(name) if are_name_characters(name) && !is_word(name) => Some(name),
        _ => None,
    }
}

/// Whether the first character begins a name and the others go on with it.
fn are_name_characters(name: &str) -> bool
    ensures { result ≡ are_name_characters (chars name.now) }
{
    let mut rest = name.chars();
    match rest.next() {
        Some(first) => begins_name(first) && all_go_on(rest.as_str()),
        None => false,
    }
}

fn begins_name(character: char) -> bool
    ensures { result ≡ begins_name character }
{
    unicode_ident::is_xid_start(character) || character == '_'
}

fn all_go_on(text: &str) -> bool
    ensures { result ≡ list_all is_xid_continue (chars text.now) }
{
    text.chars().all(unicode_ident::is_xid_continue)
}

/// Whether a word of the language is spelled so.
fn is_word(name: &str) -> bool
    ensures { result ≡ is_some (word_of name.now) }
{
    match name.len() {
        2 => name == "in" || name == "as" || name == "if",
        3 => name == "def" || name == "out",
        4 => name == "then" || name == "else" || name == "true",
        5 => name == "false",
        _ => false,
    }
}
