ghost use Rattle.std.specs.Prelude.{◌≡◌};
ghost use Rattle.telegram.specs.Records.{decoded, held_order, order_in};

use super::list::CellList;
use super::refusal::Refusal;
use order::{Cells, Order};

/// One order of a telegram, with its lists as parts of the telegram.
#[derive(Clone, Copy)]
pub struct Record<'a> {
    pub class: u8,
    pub code: u8,
    pub argument: u32,
    pub reads: CellList<'a>,
    pub writes: CellList<'a>,
}

/// The order by itself. No record that a reader accepts is refused here.
impl TryFrom<Record<'_>> for Order {
    type Error = Refusal;

    ghost try_from_gives = { λ d r. held_order r ≡ order_in (decoded d) };

    fn try_from(fields: Record<'_>) -> Result<Order, Refusal> {
        if fields.class > 7 {
            return Err(Refusal::BadClass);
        }
        let reads = Cells::try_from(fields.reads)?;
        let writes = Cells::try_from(fields.writes)?;
        Ok(Order {
            class: fields.class,
            code: fields.code,
            argument: fields.argument,
            reads,
            writes,
        })
    }
}
