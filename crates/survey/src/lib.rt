// Survey points: the deduct points of Table 1 of the report.
#![tactic(auto)]

ghost use Rattle.std.specs.Prelude.{◌≡◌, [], ◌+◌, ◌<◌, length, get_or, MatchOption};
ghost use Rattle.survey.specs.Blocks.{Distinct, stored_as, table_from};
ghost use Rattle.rules.specs.Answers.{answer_in};
ghost use Rattle.rules.specs.Survey.{deduct_points, block_of, survey_of};

use rules::{Answer, Refusal};

// The distinct blocks of Table 1: a row for each degree from 1, an entry for each extent from 1.
const DEDUCT: [[[u8; 3]; 3]; 7] = [
    [[0, 2, 5], [5, 7, 10], [10, 12, 15]],
    [[5, 8, 10], [10, 12, 15], [15, 18, 20]],
    [[5, 10, 15], [10, 15, 20], [15, 20, 25]],
    [[0, 2, 5], [5, 7, 10], [7, 15, 20]],
    [[2, 5, 8], [5, 8, 10], [8, 10, 15]],
    [[3, 7, 12], [7, 12, 15], [12, 15, 20]],
    [[3, 7, 10], [7, 10, 15], [10, 15, 20]],
];

// Which of them is the block of each distress, and of each seal of 7 and 8.
const STORED: [u8; 12] = [0, 1, 1, 1, 2, 3, 4, 5, 2, 4, 6, 5];

// The block of a code at its seal, counted from 0.
#[tactic(auto, using(std::proofs::lemmas::Bool::Decides::nat_tests), unfolding(rules::specs::Survey::block_of))]
fn block_of(code: usize, seal: usize) -> Option<usize>
    ensures { MatchOption result (block_of code seal ≡ 0) (λ block. (block_of code seal ≡ block + 1) × (block < 12)) }
{
    match (code, seal) {
        (1..=6, 0) => Some(code - 1),
        (7, 1..=3) => Some(5 + seal),
        (8, 1..=3) => Some(8 + seal),
        _ => None,
    }
}

// An entry of Table 1, counted from 0. The blocks are seven, differ, and with the map are Table 1.
fn entry(block: usize, row: usize, column: usize) -> u8
    requires { (block < 12) × (row < 3) × (column < 3) }
    ensures seven { length DEDUCT ≡ 7 }
    ensures distinct { Distinct DEDUCT }
    ensures map { STORED ≡ stored_as }
    ensures table { table_from DEDUCT ≡ deduct_points }
    ensures entry { result ≡ get_or (get_or (get_or deduct_points block []) row []) column 0 }
{
    DEDUCT[usize::from(STORED[block])][row][column]
}

// The points for a distress code, its degree, its extent and its seal: a refusal for what the table does not have.
#[tactic(auto, using(std::proofs::lemmas::Bool::Decides::nat_tests), unfolding(rules::specs::Survey::survey_of, rules::specs::Survey::survey_refusal, rules::specs::Survey::points_of, rules::specs::Answers::answer_of))]
pub fn survey_points(code: usize, degree: usize, extent: usize, seal: usize) -> Answer
    ensures { answer_in result ≡ survey_of code degree extent seal }
{
    let block = block_of(code, seal).ok_or(Refusal::NoSuchPoints)?;
    if degree > 3 || !(1..=3).contains(&extent) {
        return Err(Refusal::NoSuchPoints);
    }
    if degree == 0 {
        return Ok(0);
    }
    Ok(usize::from(entry(block, degree - 1, extent - 1)))
}
