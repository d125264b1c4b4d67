// Where each value stands in the store.
#![tactic(auto)]

ghost use Rattle.std.specs.Prelude.{◌≡◌, ◌<◌};
ghost use Rattle.offsets.specs.Offsets.{ValuesRead, size_at, offsets_of, needed_of};

use limits::Limits;
use shape::size_of;
use values::Values;

// How many elements value i has.
pub fn value_size(vs: Values, i: usize) -> usize
    requires { (i < 264) × ValuesRead vs }
    ensures { result ≡ size_at vs i }
{
    size_of(vs.list[i].ty.shape)
}

// The slot at which each value begins.
pub fn offsets_of(vs: Values) -> [usize; Limits::VALUES]
    requires { ValuesRead vs }
    ensures { result ≡ offsets_of vs }
{
    let mut list = [0; Limits::VALUES];
    let mut at = 0;
    for i in 0..Limits::VALUES {
        let next = at + value_size(vs, i);
        list[i] = at;
        at = next;
    }
    list
}

// How many slots the values need together.
pub fn needed_of(vs: Values) -> usize
    requires { ValuesRead vs }
    ensures { result ≡ needed_of vs }
{
    let mut at = 0;
    for i in 0..vs.count {
        at += value_size(vs, i);
    }
    at
}
