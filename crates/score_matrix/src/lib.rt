// Computes the score (log-likelihood) and the evidence of a cell for a code (score_matrix.rs, bit_likelihood.rs; `read_code` of emit.rs).

#![tactic(auto)]

ghost use Rattle.std.specs.Prelude.{◌≡◌};
ghost use Rattle.std.specs.Float.{binary32};
ghost use Rattle.std.specs.Float.Ieee.{sub};
ghost use Rattle.score_matrix.specs.Scores.{null_score};
ghost use Rattle.score_matrix.specs.Weights.{uncut_weight, weight};

mod built_in;
pub mod cell;
pub mod rows;
pub mod table;
pub mod turned;

// The settings of a match, as upstream's, without slope and floor, which the likelihood table contains.
#[derive(Clone, Copy)]
pub struct BoardMatchConfig {
    pub px_per_square: f32,
    pub alignment_min_margin: f32,
    pub cell_weight_border_threshold: f32,
    // Document 02's: a cell with a smaller weight has weight 0.
    pub least_weight: f32,
}

// The weight of a sampled cell by upstream's rule, which has no least weight.
fn uncut_weight(threshold: f32, fraction: f32) -> f32
    ensures { result ≡ uncut_weight threshold fraction }
{
    if threshold <= 0.0 {
        return 1.0;
    }
    floats::clamp01(fraction / threshold)
}

// The weight of a cell, from the black fraction of its border; an unsampled cell has none.
pub fn cell_weight(config: BoardMatchConfig, border: Option<f32>) -> f32
    ensures { result ≡ weight config border }
{
    match border {
        None => 0.0,
        Some(fraction) => {
            let uncut = uncut_weight(config.cell_weight_border_threshold, fraction);
            if uncut < config.least_weight {
                0.0
            } else {
                uncut
            }
        }
    }
}

const LN_2: f32 = 0.6931472;

// The log-likelihood of the samples given random bits.
pub fn null_score(bits: u8) -> f32
    ensures { result ≡ null_score bits }
{
    let n = bits as u32;
    (n * n) as f32 * -LN_2
}

// The log-likelihood ratio of a code against random bits.
pub fn evidence(score: f32, bits: u8) -> f32
    ensures { result ≡ sub binary32 score (null_score bits) }
{
    score - null_score(bits)
}
