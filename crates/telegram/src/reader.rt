ghost use Rattle.std.specs.Prelude.{◌≤◌, length};

mod fields;
mod methods;

/// Reads a telegram from its start on; the place is the number of the next byte.
#[derive(Clone, Copy)]
pub struct Reader<'a> {
    bytes: &'a [u8],
    place: usize,
    ghost inside: { place ≤ length bytes.now },
}
