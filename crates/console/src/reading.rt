// The `want=` lines of a block.
ghost use Rattle.console.specs.Blocks.{wish_wanted, WantedAs, WantRead};

use text::Lines;
use wish::Wish;

// What a `want=` line's value asks for.
fn wish_wanted(value: &[u8]) -> Option<Wish>
    ensures { WantedAs (wish_wanted value.now) result }
{
    if value == b"hold".as_slice() {
        return Some(Wish::Hold);
    }
    if let Some(digits) = value.strip_prefix(b"units:") {
        return text::read_signed(digits).map(Wish::Units);
    }
    if let Some(digits) = value.strip_prefix(b"accel:") {
        return text::read_bits(digits).map(wish::acceleration_of);
    }
    if let Some(digits) = value.strip_prefix(b"speed:") {
        return text::read_bits(digits).map(wish::target_of);
    }
    None
}

// The wish of the next line, where it holds one.
pub(crate) fn read_want(lines: &mut Lines) -> Option<Wish>
    ensures { WantRead lines.old.rest.now result lines.new.rest.now }
{
    let value = lines.value(b"want=")?;
    wish_wanted(value)
}
