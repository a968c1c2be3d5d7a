// What a not and a list make of what is said of their children.
#![tactic(auto)]

ghost use Rattle.std.specs.Prelude.{◌≡◌};
ghost use Rattle.tree.specs.VerdictTold.{turned, decides};

use tree::Verdict;

// The same bytes with the other answer.
pub fn turned(verdict: Verdict) -> Verdict
    ensures { result ≡ turned verdict }
{
    Verdict {
        holds: !verdict.holds,
        used: verdict.used,
    }
}

// Whether a child settles the answer of its list.
pub fn decides(kind: u32, child: bool) -> bool
    ensures { result ≡ decides kind child }
{
    if kind == tree::AND { !child } else { child }
}
