ghost use Rattle.std.specs.Prelude.{◌≡◌, map, IfOk, Some, string_bytes};
ghost use Rattle.order.specs.Orders.{listed, stock_order};
ghost use Rattle.telegram.specs.Refusals.{number_of};
ghost use Rattle.telegram.specs.Whole.{orders_of};
ghost use Rattle.answer.specs.Texts.{cells_text, lists_text, order_text, accepted_text, refused_text, decode_text};

use order::Order;
use std::alloc::{AllocError, Global};
use std::fmt;
use telegram::{Refused, decode};

/// A list of cells, printed with a space before each.
#[derive(Clone, Copy)]
struct CellsOf<'a>(&'a [u16]);

impl fmt::Display for CellsOf<'_> {
    ghost output = { λ cells. Some (cells_text cells.0.now) };

    #[tactic(auto, using(crate::proofs::Writing::cell_written))]
    fn fmt<W: fmt::Write>(&self, f: &mut fmt::Formatter<W>) -> fmt::Result {
        for cell in self.0 {
            write!(f, " {cell}")?;
        }
        Ok(())
    }
}

/// An order, printed as the lists in its line.
#[derive(Clone, Copy)]
struct ListsOf<'a>(&'a Order);

impl fmt::Display for ListsOf<'_> {
    ghost output = { λ order. Some (lists_text (listed order.0.now.reads) (listed order.0.now.writes)) };

    fn fmt<W: fmt::Write>(&self, f: &mut fmt::Formatter<W>) -> fmt::Result {
        let reads = CellsOf(self.0.reads.as_slice());
        let writes = CellsOf(self.0.writes.as_slice());
        write!(f, ", reads{reads}, writes{writes}")
    }
}

/// An order and its number in the telegram, printed as a line.
#[derive(Clone, Copy)]
struct OrderLine<'a> {
    number: usize,
    order: &'a Order,
}

impl fmt::Display for OrderLine<'_> {
    ghost output = { λ line. Some (order_text line.number (stock_order line.order.now)) };

    fn fmt<W: fmt::Write>(&self, f: &mut fmt::Formatter<W>) -> fmt::Result {
        let OrderLine { number, order } = *self;
        let (class, code, argument) = (order.class, order.code, order.argument);
        let lists = ListsOf(order);
        writeln!(
            f,
            "order {number}: class {class}, code {code}, argument {argument}{lists}"
        )
    }
}

/// The orders of a telegram, printed as the answer to it.
#[derive(Clone, Copy)]
struct Accepted<'a>(&'a [Order]);

impl fmt::Display for Accepted<'_> {
    ghost output = { λ orders. Some (accepted_text (map stock_order orders.0.now)) };

    fn fmt<W: fmt::Write>(&self, f: &mut fmt::Formatter<W>) -> fmt::Result {
        writeln!(f, "decode: accepted")?;
        // The number is printed, and nothing is looked up by it.
        for (number, order) in self.0.iter().enumerate() {
            write!(f, "{}", OrderLine { number, order })?;
        }
        Ok(())
    }
}

/// The refusal of a telegram, printed as the answer to it.
#[derive(Clone, Copy)]
struct RefusedTelegram(Refused);

impl fmt::Display for RefusedTelegram {
    ghost output = { λ telegram. Some (refused_text (number_of telegram.0.refusal) telegram.0.place) };

    fn fmt<W: fmt::Write>(&self, f: &mut fmt::Formatter<W>) -> fmt::Result {
        let Refused { refusal, place } = self.0;
        writeln!(f, "decode: refused {} at {place}", u8::from(refusal))
    }
}

/// The answer to `decode` with the bytes of a telegram.
#[tactic(auto, using(crate::proofs::Writing::answer_accepted))]
pub fn decode_answer(heap: Global, bytes: &[u8]) -> Result<String, AllocError>
    ensures { IfOk result (λ s. string_bytes s ≡ decode_text (orders_of bytes.now)) }
{
    let mut orders = [Order::plain(); 64];
    match decode(bytes, &mut orders) {
        Ok(count) => Accepted(&orders[..count]).to_string(heap),
        Err(refused) => RefusedTelegram(refused).to_string(heap),
    }
}
