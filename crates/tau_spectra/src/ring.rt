// The ring of far spectra.
ghost use Rattle.std.specs.Prelude.{◌≡◌, ◌≤◌, ◌<◌, ◌*◌, length};
ghost use Rattle.tau_spectra.specs.Ring.{next_slot, slot_of};

// The spectra as the filters read them: `partitions` slots of 514 numbers each, the newest spectrum in slot `head`.
#[derive(Clone, Copy)]
pub struct FarRing<'a> {
    pub partitions: usize,
    pub head: usize,
    pub spectra: &'a [f64],
    ghost whole_slots: { length spectra.now ≡ 514 * partitions },
    ghost head_in_ring: { head < partitions },
    ghost at_most_32: { partitions ≤ 32 },
}

impl<'a> FarRing<'a> {
    ghost use Rattle.tau_spectra.specs.FarRing.{ring_in};
    ghost use Rattle.tau_spectra.specs.Ring.{met_by};

    // The slot of the spectrum that partition p meets: the newest for the first, then by age.
    #[tactic(auto, unfolding(crate::specs::Ring::slot_of))]
    fn slot_of(&self, p: usize) -> usize
        requires { p < self.now.partitions }
        ensures slot { result ≡ slot_of self.now.head self.now.partitions p }
        ensures in_ring { result < self.now.partitions }
    {
        (self.head + self.partitions - p) % self.partitions
    }

    // The spectrum that partition p meets.
    pub fn met_by(&self, p: usize) -> &'a [f64]
        requires { p < self.now.partitions }
        ensures spectrum { result.now ≡ met_by (ring_in self.now) p }
        ensures bins { length result.now ≡ 514 }
    {
        let start = 514 * self.slot_of(p);
        &self.spectra[start..start + 514]
    }
}

#[tactic(auto, unfolding(crate::specs::Ring::next_slot, laws::specs::Choice::pick))]
pub fn next_slot(partitions: usize, head: usize) -> usize
    requires at_most_32 { partitions ≤ 32 }
    requires head_in_ring { head < partitions }
    ensures next { result ≡ next_slot partitions head }
    ensures in_ring { result < partitions }
{
    if head + 1 == partitions { 0 } else { head + 1 }
}
