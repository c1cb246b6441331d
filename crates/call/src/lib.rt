// A call of a participant on the lent lists, once every check is passed: what it begins, up to its first access. The definition's `opens`,
// carried out (specs/Public of `definition`, `call`), whose tables the lists hold afterwards: proofs/Laws.
#![tactic(auto)]

ghost use Rattle.std.specs.Prelude.{[]};
ghost use Rattle.definition.specs.Layout.{tables_of};
ghost use Rattle.definition.specs.Calls.{opens};
ghost use Rattle.definition.specs.Public.{the};
ghost use Rattle.definition.specs.Step.{follow};
ghost use Rattle.lent.specs.Lists.{lent, Same};
ghost use Rattle.step.specs.Steps.{Leaves};
ghost use Rattle.call.specs.Calls.{Calls};

use definition::{Answer, Call};
use follow::follow;
use internal::calls::opens;
use lent::{ListsMut, row};
use records::load;

// Makes the call `c` of participant `p`. A call frees nothing, so `follow` is lent no place for a token.
pub fn take_call(l: &mut ListsMut<'_>, p: usize, c: Call) -> Answer
    requires { Calls l.old.n l.old.m p c (lent l.old) }
    ensures leaves { Leaves l.old.n l.old.m
        (follow p (opens l.old.n c (the p (tables_of l.old.n l.old.m (lent l.old)))) (tables_of l.old.n l.old.m (lent l.old)))
        [] result (lent l.new) [] }
    ensures same { Same l.old l.new }
{
    let o = load(row(l.read().participants, p));
    let after = opens(l.n as u64, c, o);
    follow(l, p, o, after, &mut [])
}
