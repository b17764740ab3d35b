//! What optimal fit charges for.
ghost use Rattle.std.specs.Prelude.{◌≡◌};
ghost use Rattle.textwrap_base.specs.Cost.{usual_break_penalty};
ghost use Rattle.textwrap_base.specs.Penalties.{default_penalties};

/// What the lines of a division cost, in whole numbers of any unit (after Knuth and Plass,
/// "Breaking Paragraphs into Lines", 1981). By the default penalties, a line that is one unit too
/// wide and has no hyphen added at its end costs 3500.
#[derive(Clone, Copy, Debug, PartialEq, Eq)]
pub struct Penalties {
    /// What each line costs.
    pub nline_penalty: usize,
    /// What each unit costs by which a line is wider than its target.
    pub overflow_penalty: usize,
    /// A last line of a single fragment is short where its width times this number is below its
    /// target. So 4 means less than a quarter.
    pub short_last_line_fraction: usize,
    /// What a short last line costs.
    pub short_last_line_penalty: usize,
    /// What a line usually costs more that ends with a fragment of some penalty width: see
    /// `Fragment::break_penalty`.
    pub hyphen_penalty: usize,
}

/// The default penalties.
pub const DEFAULT_PENALTIES: Penalties = Penalties {
    nline_penalty: 1000,
    overflow_penalty: 2500,
    short_last_line_fraction: 4,
    short_last_line_penalty: 25,
    hyphen_penalty: 25,
};

impl Penalties {
    /// The default penalties: 1000 for each line, 2500 for each unit too wide, 25 for a last line
    /// of a single fragment below a quarter of its target, and 25 for a hyphen that is added.
    pub fn new() -> Self
        ensures { result ≡ default_penalties }
    {
        DEFAULT_PENALTIES
    }

    /// What a line usually costs more that ends with a fragment of this penalty width: the
    /// `hyphen_penalty` where it is above 0, and else 0.
    pub fn usual_break_penalty(&self, penalty_width: usize) -> usize
        ensures { result ≡ usual_break_penalty self.now penalty_width }
    {
        if penalty_width > 0 {
            self.hyphen_penalty
        } else {
            0
        }
    }
}

impl Default for Penalties {
    ghost is_default = { λ penalties. penalties ≡ default_penalties };

    fn default() -> Self {
        Penalties::new()
    }
}
