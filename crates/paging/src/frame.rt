// Document 01, "Paging bits (clause 5.3.7)", of one frame: how many of its bits carry indicators, and how many indicators of a length it holds.
ghost use Rattle.std.specs.Prelude.{◌≡◌, ◌≤◌};
ghost use Rattle.paging_bits.specs.Inside.{Fits};

use refusals::Refusal;

// A frame's indicators: `per` runs of `length` bits fill each half, of `half` carrying bits.
#[derive(Clone, Copy)]
pub struct Frame {
    pub length: u32,
    pub per: u32,
    pub half: u32,
    ghost fits: { Fits length per half },
    ghost few: { per ≤ half },
    ghost small: { half ≤ 136 },
}

impl Frame {
    ghost use Rattle.std.specs.Prelude.{IfOk};
    ghost use Rattle.refusals.specs.Refusals.{first_of, refusal_in};
    ghost use Rattle.tables.specs.Tables.{pich_refusals};
    ghost use Rattle.paging_bits.specs.Bits.{bits_in};
    ghost use Rattle.paging.specs.Paging.{half_of};
    ghost use Rattle.paging.specs.Inside.{IsFrameOf};

    // Of a burst type, with indicators of a length. Refusals: 2, 10.
    pub fn of(burst: u32, length: u32) -> Result<Frame, Refusal>
        ensures refusal { refusal_in result ≡ first_of (pich_refusals burst length) }
        ensures frame { IfOk result (IsFrameOf burst length) }
    {
        tables::check_pich(burst, length)?;
        let half = Frame::half_of(burst);
        Ok(Frame {
            length,
            per: half / length,
            half,
        })
    }

    // Half the carrying bits.
    #[tactic(auto, unfolding(crate::specs::Paging::half_of, crate::specs::Paging::carrying_of))]
    fn half_of(burst: u32) -> u32
        ensures { result ≡ half_of burst }
    {
        if burst == 1 {
            return 120;
        }
        136
    }

    // How many bits it has, the four reserved ones between its halves with them.
    pub fn bits(self) -> u32
        ensures { result ≡ bits_in self.half }
    {
        self.half + 4 + self.half
    }
}
