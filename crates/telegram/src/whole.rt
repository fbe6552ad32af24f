ghost use Rattle.std.specs.Prelude.{◌≡◌, ◌≤◌, map, drop, length, IfOk};
ghost use Rattle.order.specs.Orders.{stock_order};
ghost use Rattle.telegram.specs.Readers.{Reads};
ghost use Rattle.telegram.specs.Whole.{order_at, orders_at, orders_of, counted, tabled, filled};

use super::reader::Reader;
use super::refusal::Refused;
use order::Order;

fn next_order(reader: &mut Reader) -> Result<Order, Refused>
    ensures { Reads stock_order reader.old result reader.new order_at }
{
    let place = reader.place();
    let record = reader.next_record()?;
    Order::try_from(record).map_err(|refusal| refusal.at(place))
}

/// Decodes as many orders as there are places for.
fn next_orders(reader: &mut Reader, places: &mut [Order]) -> Result<(), Refused>
    ensures { Reads (λ _. map stock_order places.new) reader.old result reader.new (orders_at (length places.old)) }
{
    for place in places.iter_mut() {
        *place = next_order(reader)?;
    }
    Ok(())
}

/// Decodes a whole telegram into the first places of the table, which a refused one may leave half filled.
#[tactic(auto, using(crate::proofs::Orders::orders_in_turn))]
fn fill(bytes: &[u8], table: &mut [Order; 64]) -> Result<usize, Refused>
    ensures few { IfOk result (λ n. n ≤ 64) }
    ensures answer { result ≡ counted (orders_of bytes.now) }
    ensures table { IfOk result (λ _. map stock_order table.new ≡ tabled (orders_of bytes.now) (map stock_order table.old)) }
    ensures kept { IfOk result (λ n. drop n table.new ≡ drop n table.old) }
{
    let mut reader = Reader::new(bytes);
    let count = usize::from(reader.count()?);
    next_orders(&mut reader, &mut table[..count])?;
    reader.end()?;
    Ok(count)
}

/// Decodes a whole telegram into the first places of the table, and answers how many orders it has.
pub fn decode(bytes: &[u8], orders: &mut [Order; 64]) -> Result<usize, Refused>
    ensures few { IfOk result (λ n. n ≤ 64) }
    ensures answer { result ≡ counted (orders_of bytes.now) }
    ensures table { map stock_order orders.new ≡ tabled (orders_of bytes.now) (map stock_order orders.old) }
    ensures kept { drop (filled result) orders.new ≡ drop (filled result) orders.old }
{
    let mut table = *orders;
    let count = fill(bytes, &mut table)?;
    *orders = table;
    Ok(count)
}
