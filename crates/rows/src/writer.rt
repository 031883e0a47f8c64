// A bit writer over a lent buffer, most significant bit first. How many bits a call writes is bounded in its clause: at each call it is another field.
ghost use Rattle.std.specs.Prelude.{◌^◌, ◌<◌};

// `at` bytes are written, and `have` bits, fewer than 8, wait in `acc`. It lends no buffer, so that one that has written a key serves many rows.
#[derive(Clone, Copy)]
pub struct Bits {
    pub acc: u64,
    pub have: usize,
    pub at: usize,
    pub ghost few: { have < 8 },
    pub ghost small: { acc < 2 ^ have },
}

impl Bits {
    ghost use Rattle.std.specs.Prelude.{◌≡◌, [], ◌∷◌, ◌+◌, ◌-◌, ◌*◌, ◌^◌, ◌≤◌, ◌<◌, length};
    ghost use Rattle.rows.specs.Packing.{«bits», «each», Fit, num};
    ghost use Rattle.rows.specs.Writer.{so_far, count, Wrote, start};

    // A writer that has written nothing.
    pub fn new() -> Self
        ensures start { result ≡ start }
        ensures result_value { count result ≡ 0 }
    {
        Bits {
            acc: 0,
            have: 0,
            at: 0,
        }
    }

    // Writes the w bits of v.
    pub fn put(self, out: &mut [u8], w: usize, v: u64) -> Self
        requires w_bound { (w ≤ 56) × (v < 2 ^ w) }
        requires w_bound_2 { count self + w ≤ 8 * length out.old }
        ensures wrote { Wrote out.old out.new self result (bits w v ∷ []) }
        ensures result_value { count result ≡ count self + w }
    {
        let mut acc = (self.acc << w) + v;
        let mut have = self.have + w;
        let mut at = self.at;
        // a `while`: how many bytes leave is told by the bits that wait
        while 8 <= have {
            have -= 8;
            out[at] = (acc >> have) as u8;
            acc = acc % (1 << have);
            at += 1;
        }
        Bits { acc, have, at }
    }

    // Writes the w bits of each value of vs.
    pub fn put_each(self, out: &mut [u8], w: usize, vs: &[u8]) -> Self
        requires w_bound { (w ≤ 56) × Fit (each w vs.now) }
        requires vs_bound { count self + w * length vs.now ≤ 8 * length out.old }
        ensures wrote { Wrote out.old out.new self result (each w vs.now) }
        ensures result_value { count result ≡ count self + w * length vs.now }
    {
        let mut t = self;
        for v in vs {
            t = t.put(out, w, u64::from(*v));
        }
        t
    }

    // Pads with zero bits to the end.
    pub fn finish(self, out: &mut [u8])
        requires { count self ≤ 8 * length out.old }
        ensures { num out.new ≡ so_far out.old self * 2 ^ (8 * length out.old - count self) }
    {
        let pad = (8 - self.have) % 8;
        let t = self.put(out, pad, 0);
        out[t.at..].fill(0);
    }
}
