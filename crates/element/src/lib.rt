// Element types and their slots.
#![tactic(auto)]

ghost use Rattle.std.specs.Prelude.{◌≡◌, true, false, pos, neg_ℤ, nat_abs};
ghost use Rattle.lists.specs.Lists.{pick};
ghost use Rattle.std.specs.Int.Signed.{lt_z};
ghost use Rattle.element.specs.Types.{width_of, signed_of, bool_of, mask_of, lowest_of, highest_of, all_of, read, slot_of, slot_for, value_of, wrap_to, is_value};

// 01, "Element types".
#[derive(Clone, Copy, PartialEq, Eq)]
pub enum ElementType {
    I1,
    I8,
    I16,
    I32,
    I64,
    U8,
    U16,
    U32,
    U64,
}

impl ElementType {
    // Bits of a value.
    pub fn width(self) -> u64
        ensures { result ≡ width_of self }
    {
        match self {
            ElementType::I1 => 1,
            ElementType::I8 | ElementType::U8 => 8,
            ElementType::I16 | ElementType::U16 => 16,
            ElementType::I32 | ElementType::U32 => 32,
            ElementType::I64 | ElementType::U64 => 64,
        }
    }

    pub fn is_signed(self) -> bool
        ensures { result ≡ signed_of self }
    {
        matches!(
            self,
            ElementType::I8 | ElementType::I16 | ElementType::I32 | ElementType::I64
        )
    }

    pub fn is_bool(self) -> bool
        ensures { result ≡ bool_of self }
    {
        self == ElementType::I1
    }

    // The lowest value, as a slot.
    pub fn lowest(self) -> u64
        ensures { result ≡ lowest_of self }
    {
        match self {
            ElementType::I8 => 0xffff_ffff_ffff_ff80,
            ElementType::I16 => 0xffff_ffff_ffff_8000,
            ElementType::I32 => 0xffff_ffff_8000_0000,
            ElementType::I64 => 0x8000_0000_0000_0000,
            _ => 0,
        }
    }

    // The highest value, as a slot.
    // Kept: a table with one value for each type; the widths show no plainer.
    pub fn highest(self) -> u64
        ensures { result ≡ highest_of self }
    {
        match self {
            ElementType::I1 => 1,
            ElementType::I8 => 0x7f,
            ElementType::I16 => 0x7fff,
            ElementType::I32 => 0x7fff_ffff,
            ElementType::I64 => 0x7fff_ffff_ffff_ffff,
            ElementType::U8 => 0xff,
            ElementType::U16 => 0xffff,
            ElementType::U32 => 0xffff_ffff,
            ElementType::U64 => u64::MAX,
        }
    }

    // The bits of the type's width, all set.
    pub fn mask(self) -> u64
        ensures { result ≡ mask_of self }
    {
        u64::MAX >> (64 - self.width())
    }

    // The value with all bits set, as a slot.
    pub fn all(self) -> u64
        ensures { result ≡ all_of self }
    {
        if self.is_signed() {
            u64::MAX
        } else {
            self.mask()
        }
    }
}

// 01, "Integer results are taken modulo 2^n into the type's range": x taken there.
pub fn fit(t: ElementType, x: u64) -> u64
    ensures { result ≡ wrap_to t (pos x) }
{
    let mask = t.mask();
    let low = x & mask;
    if t.is_signed() && mask / 2 < low {
        low + !mask
    } else {
        low
    }
}

// Whether a slot holds a value of the type (refusal 11).
pub fn is_value(t: ElementType, s: u64) -> bool
    ensures { result ≡ is_value t s }
{
    s <= t.highest() || t.is_signed() && t.lowest() <= s
}

// Whether a slot holds a value below 0.
pub fn is_negative(t: ElementType, a: u64) -> bool
    ensures { result ≡ lt_z (value_of t a) (pos 0) }
{
    t.is_signed() && 0x8000_0000_0000_0000 <= a
}

// The number that a slot holds, without its sign.
pub fn magnitude(t: ElementType, s: u64) -> u64
    ensures { result ≡ nat_abs (value_of t s) }
{
    if is_negative(t, s) {
        s.wrapping_neg()
    } else {
        s
    }
}

// The slot that holds the number m or -m, a value of the type.
pub fn slot_for(t: ElementType, negative: bool, m: u64) -> u64
    ensures { result ≡ slot_for t (pick negative (neg_ℤ (pos m)) (pos m)) }
{
    if negative { m.wrapping_neg() } else { m }
}
