// Sizes that were found to be within those of the edition.
ghost use Rattle.std.specs.Prelude.{◌≡◌, ◌^◌, ◌↔◌, IfErr, IsErrOf};
ghost use Rattle.kinds.specs.Edition.{edition1, Sized};
ghost use Rattle.kinds.specs.Frame.{tick_bits, ticks};
ghost use Rattle.kinds.specs.declared.Refusal.{Refusal};

use crate::Refusal;

// n and k within the sizes: what takes them so need not ask again. A tool is told them as two numbers, which may be wrong.
#[derive(Clone, Copy, Debug, PartialEq, Eq)]
pub struct Sizes {
    pub n: u32,
    pub k: u32,
    ghost sized: { Sized edition1 n k },
}

impl Sizes {
    ghost use Rattle.kinds.specs.Sizes.{AreSizes};

    // 1 where they are outside.
    pub fn new(n: u32, k: u32) -> Result<Sizes, Refusal>
        ensures sizes { AreSizes n k result }
        ensures refused { IsErrOf result Refusal.Sizes ↔ (¬ Sized edition1 n k) }
        ensures no_other { IfErr result (λ refusal. refusal ≡ Refusal.Sizes) }
    {
        if !crate::sized(n, k) {
            return Err(Refusal::Sizes);
        }
        Ok(Sizes { n, k })
    }

    // t, the bits of a tick.
    pub fn tick_bits(self) -> u32
        ensures { result ≡ tick_bits self.n self.k }
    {
        self.n - self.k
    }

    // The ticks of a frame.
    pub fn ticks(self) -> u32
        ensures { result ≡ ticks self.n self.k }
    {
        1 << self.tick_bits()
    }

    pub fn ports(self) -> u32
        ensures { result ≡ 2 ^ self.k }
    {
        1 << self.k
    }

    // The words of a frame.
    pub fn words(self) -> u32
        ensures { result ≡ 2 ^ self.n }
    {
        1 << self.n
    }
}
