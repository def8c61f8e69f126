// What a hard and a soft call are given, each as one value: no entry point asks for more than these and lent room.
use board::list::List;
use board::pattern::Tables;
use likelihood::Likelihoods;

// A hard call: the edges after the votes and as they were seen, the transforms to search by number, the pattern tables, and the error limit.
#[derive(Clone, Copy)]
pub struct HardCall<'a> {
    pub logical: List<'a>,
    pub physical: List<'a>,
    pub transforms: &'a [u8],
    pub tables: Tables<'a>,
    pub error_limit: f32,
}

// A soft call: a hard call, with the two likelihoods of each physical edge and the soft margin besides.
#[derive(Clone, Copy)]
pub struct SoftCall<'a> {
    pub hard: HardCall<'a>,
    pub likelihoods: Likelihoods<'a>,
    pub soft_margin: f32,
}
