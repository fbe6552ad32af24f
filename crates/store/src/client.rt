ghost use Rattle.std.specs.Prelude.{◌≡◌};
ghost use Rattle.store.specs.Copies.{copy_answer, copied};
ghost use Rattle.store.specs.Seen.{CopyWrote};

use super::{Fault, Store};

/// Gives one cell the value of another, in any store.
pub fn copy<S: Store>(store: &mut S, from: u16, to: u16) -> Result<(), Fault>
    ensures answers { result ≡ copy_answer (S.Store.at store.old) from to }
    ensures sets { S.Store.at store.new ≡ copied (S.Store.at store.old) from to }
    ensures went { CopyWrote S.Store store.old from to store.new }
{
    let value = store.read(from)?;
    store.write(to, value)
}
