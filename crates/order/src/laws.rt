ghost use Rattle.order.specs.Laws.{ListsAreSound};

pub fn lists_are_sound()
    ensures { ListsAreSound }
{}
