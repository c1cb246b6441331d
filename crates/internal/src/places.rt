// What is asked of a place besides its access: whether no operation runs, whether one that runs registers, and whether the step must
// take a node. Each promise cites the definition of the same name.
ghost use Rattle.std.specs.Prelude.{◌≡◌};
ghost use Rattle.definition.specs.Public.{takes_node};
ghost use Rattle.definition.specs.Ranges.{is_rest};
ghost use Rattle.definition.specs.Survey.{is_register};

use definition::{Place, PushAt};

// Whether the place is rest: no operation runs.
#[tactic(auto, unfolding(definition::specs::Ranges::is_rest))]
pub fn is_rest(place: Place) -> bool
    ensures { result ≡ is_rest place }
{
    matches!(place, Place::Rest)
}

// Whether the place is one of registering.
#[tactic(auto, unfolding(definition::specs::Survey::is_register))]
pub fn is_register(place: Place) -> bool
    ensures { result ≡ is_register place }
{
    matches!(place, Place::Register(_))
}

// Whether the place's step must take a node: internal.rs, `Global::push_bag` stands before the load by which its bag is sealed.
#[tactic(auto, unfolding(definition::specs::Public::takes_node))]
pub fn takes_node(place: Place) -> bool
    ensures { result ≡ takes_node place }
{
    matches!(place, Place::Push(_, PushAt::Epoch))
}
