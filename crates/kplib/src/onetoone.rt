// The one-to-one match: each row alone against the whole haplotype (traverse.rs, one_to_one).
ghost use Rattle.std.specs.Prelude.{◌≡◌, ◌≤◌};
ghost use Rattle.params.specs.Held.{table_held, parts_held};
ghost use Rattle.kplib.specs.Graph.{node_of};
ghost use Rattle.kplib.specs.OneToOne.{latest_of, one_to_one};
ghost use Rattle.kplib.specs.Scoring.{best_alone, Matchable, Matching};

use crate::haplotype::{all_positions, whole_size};
use crate::pathscore::{Scored, Total, greater_of, list_score, nothing};
use crate::plan::Plan;
use crate::sums::sum_features;
use crate::vargraph::Row;
use params::{Parts, Settings, Table};

// The best node's row. Where its target is `Nothing` no node matched, and the row means nothing.
#[derive(Clone, Copy)]
pub(crate) struct Lone {
    pub row: Row,
    pub scored: Scored,
}

// The later of two where it is a candidate and scores no less.
fn latest_of(best: Lone, row: Row, x: Scored) -> Lone
    requires { row.0 ≤ 64 }
    ensures { result ≡ latest_of best (node_of row.0) x }
{
    if 0.0 < x.seqsim {
        let old = best.scored;
        if x.score < old.score {
            return best;
        }
        return Lone { row, scored: x };
    }
    best
}

// Each row against the summed whole haplotype. Source and sink are left out: no anchor is ever chosen.
fn match_rows(plan: Plan, table: &Table, whole_row: &[i32]) -> Lone
    requires { Matching plan table.now.sizes.now table.now.features.now whole_row.now }
    ensures { result ≡ best_alone plan table.now.sizes.now table.now.features.now whole_row.now }
{
    let none = nothing();
    let mut best = Lone {
        row: Row(0),
        scored: none,
    };
    let s = plan.s;
    let width = plan.width;
    for (r, size) in table.sizes.iter().enumerate() {
        let a = r * width;
        let node = Total {
            size: *size,
            features: &table.features[a..a + width],
            count: 1,
        };
        let whole = Total {
            size: plan.target,
            features: whole_row,
            count: plan.m,
        };
        let verdict = list_score(s, node, whole, 0);
        let x = greater_of(nothing(), 0, verdict);
        best = latest_of(best, Row(r as u32), x);
    }
    best
}

pub(crate) fn one_to_one(
    s: Settings,
    table: &Table,
    parts: &Parts,
    chosen: &mut [u32],
    whole_row: &mut [i32],
) -> Lone
    requires { Matchable s (table_held table.now) (parts_held parts.now) chosen.old whole_row.old }
    ensures { result ≡ one_to_one s (table_held table.now) (parts_held parts.now) }
{
    let m = parts.sizes.len();
    all_positions(m, chosen);
    sum_features(parts.features, &chosen[..m], whole_row);
    let plan = Plan {
        s,
        width: whole_row.len(),
        m,
        target: whole_size(parts.sizes),
    };
    match_rows(plan, table, whole_row)
}
