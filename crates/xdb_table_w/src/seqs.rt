ghost use Rattle.std.specs.Prelude.{◌≡◌};
ghost use Rattle.xdb_table_w.specs.Extents.{widened, both};

/// The least and the greatest of some sequence numbers.
#[derive(Clone, Copy, Debug)]
pub struct Seqs {
    pub lo: u64,
    pub hi: u64,
}

/// The numbers so far and one more.
pub fn widened(seqs: Option<Seqs>, n: u64) -> Seqs
    ensures { result ≡ widened seqs n }
{
    match seqs {
        None => Seqs { lo: n, hi: n },
        Some(seqs) => Seqs {
            lo: seqs.lo.min(n),
            hi: seqs.hi.max(n),
        },
    }
}

/// The numbers of two parts.
pub fn both(a: Option<Seqs>, b: Option<Seqs>) -> Option<Seqs>
    ensures { result ≡ both a b }
{
    match (a, b) {
        (None, seqs) | (seqs, None) => seqs,
        (Some(a), Some(b)) => Some(Seqs {
            lo: a.lo.min(b.lo),
            hi: a.hi.max(b.hi),
        }),
    }
}
