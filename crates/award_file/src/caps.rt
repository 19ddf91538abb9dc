// Spectrum caps.
ghost use Rattle.std.specs.Prelude.{◌≡◌, ◌≤◌, length, All, option_map};
ghost use Rattle.limits.specs.declared.TheConstants.{MOST_CAPS, MOST_CAP_WEIGHT, MOST_CATEGORIES};
ghost use Rattle.auction_model.specs.Package.{cost_of, together};
ghost use Rattle.auction_rules.specs.Terms.{first_broken};
ghost use Rattle.award_file.specs.Award.{IsCap};
ghost use Rattle.award_file.specs.Fields.{fault_value, cap_values};

/// The weighted lots of a bidder, with those that it holds already, are at most the limit.
#[derive(Drop)]
pub struct SpectrumCap {
    /// One weight for each category.
    pub weights: Vec<u16>,
    /// The greatest weighted sum.
    pub limit: u64,
}

/// A spectrum cap that is exceeded.
#[derive(Clone, Copy, Debug, PartialEq, Eq)]
pub struct CapFault {
    /// Its number, from 1, in the order of the award.
    pub number: u32,
    /// Its limit.
    pub limit: u64,
}

/// The weighted sum of what is asked for and held.
fn weight_of(weights: &[u16], counts: &[u16], holding: &[u16]) -> u64
    requires categories { length counts.now ≤ MOST_CATEGORIES }
    requires weights { length weights.now ≡ length counts.now }
    requires holding { length holding.now ≡ length counts.now }
    requires most { All (λ w. w ≤ MOST_CAP_WEIGHT) weights.now }
    ensures { result ≡ cost_of weights.now (together counts.now holding.now) }
{
    let mut sum = 0u64;
    for i in 0..counts.len() {
        sum += weights[i] as u64 * (counts[i] as u64 + holding[i] as u64);
    }
    sum
}

/// The first of the caps that the counts exceed with the holding.
pub fn first_exceeded(caps: &[SpectrumCap], counts: &[u16], holding: &[u16]) -> Option<CapFault>
    requires few { length caps.now ≤ MOST_CAPS }
    requires categories { length counts.now ≤ MOST_CATEGORIES }
    requires holding { length holding.now ≡ length counts.now }
    requires each { All (IsCap (length counts.now)) (cap_values caps.now) }
    ensures { option_map fault_value result ≡ first_broken 1 (cap_values caps.now) (together counts.now holding.now) }
{
    for (i, cap) in caps.iter().enumerate() {
        if weight_of(&cap.weights, counts, holding) > cap.limit {
            return Some(CapFault {
                number: i as u32 + 1,
                limit: cap.limit,
            });
        }
    }
    None
}
