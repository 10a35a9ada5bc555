// What a count of the tally is of, in words: a reason; and under 10, which no reason has, what is counted beside the reasons.
ghost use Rattle.std.specs.Prelude.{◌≡◌, ◌≤◌, length};
ghost use Rattle.reasons.specs.Words.{words_of};

#[tactic(auto, unfolding(crate::specs::Words::words_of, laws::specs::Choice::pick))]
pub fn words(number: u32) -> &'static str
    ensures value { result.now ≡ words_of number }
    ensures most { length result.now ≤ 26 }
{
    match number {
        1 => "flush block",
        2 => "output diverged",
        3 => "far not active",
        4 => "detector not established",
        5 => "rescued",
        6 => "quiet streak below 6",
        7 => "output power not above 0",
        8 => "advantage not at least 0.1",
        10 => "went over",
        _ => "moved",
    }
}
