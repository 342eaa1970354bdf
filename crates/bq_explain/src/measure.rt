//! What a policy uses of the things that a keeper may limit.
ghost use Rattle.bq_bpf.specs.declared.shape.TheConstants.{MAPS};
ghost use Rattle.std.specs.Prelude.{◌≡◌, ◌≤◌, count_by, length, sum_by};
ghost use Rattle.bq_bpf.specs.Instructions.{asks_counter};
ghost use Rattle.bq_explain.specs.Measures.{bytes_in_map, measure_of, measure_word};

use bq_bpf::MapShape;
use bq_bpf::instruction::is_counter_call;
use bq_insn::Insn;
use bq_policy_file::PolicySource;

/// What a keeper may limit, beside the steps of a run.
#[derive(Clone, Copy)]
pub enum Measure {
    /// The number of maps of the policy.
    Maps,
    /// The number of bytes of the values of all its maps.
    MapBytes,
    /// The number of its instructions that call a counter.
    Counters,
}

impl Measure {
    /// Returns how much of the measure the policy uses.
    pub fn of(self, policy: &PolicySource) -> u64
        ensures { result ≡ measure_of policy.now self }
    {
        match self {
            Measure::Maps => policy.form.shapes.len() as u64,
            Measure::MapBytes => value_bytes(policy.form.shapes.as_slice()),
            Measure::Counters => counter_calls(policy.insns.as_slice()) as u64,
        }
    }

    /// Returns the name of the measure in answers and options.
    pub fn word(self) -> &'static str
        ensures { result.now ≡ measure_word self }
    {
        match self {
            Measure::Maps => "maps",
            Measure::MapBytes => "map-bytes",
            Measure::Counters => "counters",
        }
    }
}

impl Measure {
    /// Says what the measure counts.
    pub(crate) fn text(self) -> &'static str {
        match self {
            Measure::Maps => "maps",
            Measure::MapBytes => "bytes in the values of all maps",
            Measure::Counters => "instructions that call a counter",
        }
    }
}

/// Sums the bytes of the values of these maps.
fn value_bytes(shapes: &[MapShape]) -> u64
    requires { length shapes.now ≤ MAPS }
    ensures { result ≡ sum_by bytes_in_map shapes.now }
{
    let mut sum: u64 = 0;
    for shape in shapes {
        sum += map_bytes(*shape);
    }
    sum
}

/// Returns how many bytes the values of a map have.
#[tactic(auto, using(crate::proofs::MeasureLemmas::few_bytes))]
fn map_bytes(shape: MapShape) -> u64
    ensures value { result ≡ bytes_in_map shape }
    ensures few { result ≤ 65536 }
{
    u64::from(shape.value_size) * u64::from(shape.entries)
}

/// Counts the instructions that call a counter.
pub(crate) fn counter_calls(insns: &[Insn]) -> usize
    ensures { result ≡ count_by asks_counter insns.now }
{
    let mut count: usize = 0;
    for insn in insns {
        if is_counter_call(*insn) {
            count += 1;
        }
    }
    count
}
