//! Limits of the work for an answer.
ghost use Rattle.std.specs.Prelude.{◌≡◌};

/// Limits of the work for an answer from NSEC3 records.
#[derive(Clone, Copy)]
pub struct Nsec3Limits {
    /// The most iterations that the NSEC3PARAM record may have (RFC 9276, section 3.2).
    pub iterations: u16,
    /// The most names to hash from a name up to its closest encloser, both included. The wildcard
    /// below the closest encloser is hashed in addition.
    pub names: usize,
}

impl Default for Nsec3Limits {
    ghost is_default = { λ limits. limits ≡ record { iterations = 50; names = 64 } };

    /// 50 iterations, as BIND, Knot Resolver and PowerDNS allow; Unbound allows 150. And 64 names:
    /// names below `ip6.arpa` have at most 34 labels, so no honest proof about one is given up.
    fn default() -> Self {
        Nsec3Limits {
            iterations: 50,
            names: 64,
        }
    }
}
