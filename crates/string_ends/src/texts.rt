//! The strings of names, told apart without a search for the end of each: many may be ends of one long text.

ghost use Rattle.std.specs.Prelude.{◌≡◌, false, None, Some, List, ℕ, bytes_eq, option_map};
ghost use Rattle.ix_base.specs.Reading.{before_zero};
ghost use Rattle.string_ends.specs.Texts.{text_in, IsLastEnd};

use ix_base::Cursor;

/// The string at an offset, None where the offset passes the strings or no zero follows.
pub fn text_at(strings: &[u8], offset: u64) -> Option<&[u8]>
    ensures { option_map (λ t. t.now) result ≡ text_in strings.now offset }
{
    if offset > strings.len() as u64 {
        return None;
    }
    Cursor::new(strings, offset as usize).zstr()
}

/// Where the last string has its end, behind its zero. Strings begin before that, and nowhere else.
pub fn last_end(strings: &[u8]) -> usize
    ensures { IsLastEnd strings.now result }
{
    let mut end = strings.len();
    while 0 < end && strings[end - 1] != 0 {
        end -= 1;
    }
    end
}

/// Whether the string at the front of these bytes is a name. No more of them is read than the name has, and its zero. Where no zero
/// follows it is none.
pub fn is_text(rest: &[u8], name: &[u8]) -> bool
    ensures text { (text : List ℕ) → before_zero rest.now ≡ Some text → result ≡ bytes_eq text name.now }
    ensures none { before_zero rest.now ≡ None → result ≡ false }
{
    let most = rest.len().min(name.len() + 1);
    match text_at(&rest[..most], 0) {
        Some(text) => text == name,
        None => false,
    }
}
