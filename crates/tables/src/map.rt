// A map of one bit for each mark, made anew by each call that needs it.
ghost use Rattle.std.specs.Prelude.{◌≡◌, ◌*◌, ◌<◌, length, replicate};
ghost use Rattle.tables.specs.MarkMap.{in_map, with_mark, AllIn};

use records::Assembler;
use units::MarkId;

// Which marks are in it: of the marks below eight times its bytes, all that it has room for.
#[derive(Drop)]
pub(crate) struct MarkMap<const BYTES: usize> {
    bits: [u8; BYTES],
    ghost whole: { length bits ≡ BYTES },
}

impl<const BYTES: usize> MarkMap<BYTES> {
    // A map of no mark.
    pub(crate) fn new() -> Self
        ensures { result.bits ≡ replicate BYTES 0 }
    {
        MarkMap { bits: [0u8; BYTES] }
    }

    // Whether the mark is in it.
    #[tactic(auto, unfolding(crate::specs::MarkMap::in_map))]
    pub(crate) fn contains(&self, mark: MarkId) -> bool
        requires { «mark».0 < 8 * BYTES }
        ensures { result ≡ in_map self.now.bits «mark».0 }
    {
        let at = (mark.0 / 8) as usize;
        let k = (mark.0 % 8) as u8;
        (self.bits[at] >> k) % 2 == 1
    }

    // Puts the mark into it.
    #[tactic(auto, using(crate::proofs::MarkMaps::shifted), unfolding(crate::specs::MarkMap::with_mark))]
    pub(crate) fn insert(&mut self, mark: MarkId)
        requires { «mark».0 < 8 * BYTES }
        ensures { self.new.bits ≡ with_mark self.old.bits «mark».0 }
    {
        let at = (mark.0 / 8) as usize;
        let k = (mark.0 % 8) as u8;
        self.bits[at] = self.bits[at] | (1u8 << k);
    }

    // Takes every mark out of it.
    pub(crate) fn clear(&mut self)
        ensures { self.new.bits ≡ replicate BYTES 0 }
    {
        self.bits.fill(0);
    }

    // That every mark below a limit is in it; never said of a limit past the mark numbers or past the map.
    pub(crate) fn has_all_below(&self, limit: usize) -> bool
        ensures { AllIn self.now.bits limit result }
    {
        if (Assembler::MAX_MARK as usize) + 1 < limit {
            return false;
        }
        if BYTES < limit.div_ceil(8) {
            return false;
        }
        for m in 0..limit {
            if !self.contains(MarkId(m as u32)) {
                return false;
            }
        }
        true
    }
}
