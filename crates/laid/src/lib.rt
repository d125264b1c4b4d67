// Memory written from a place on, one element after the other, as far as there is room: slots by the reader, bytes by the printer.
#![tactic(auto)]

ghost use Rattle.std.specs.Prelude.{◌≡◌};
ghost use Rattle.laid.specs.Laid.{laid, put};

// An element at `place`, where there is room; the place after it.
pub fn put<T: Copy>(out: &mut [T], place: usize, x: T) -> usize
    ensures { laid result out.new ≡ put x (laid place out.old) }
{
    if place < out.len() {
        out[place] = x;
        return place + 1;
    }
    place
}
