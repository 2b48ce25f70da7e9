//! How long texts took that browsers sent for nodes.

ghost use Rattle.std.specs.Prelude.{◌≡◌, map};
ghost use Rattle.desk_metrics.specs.Counts.{counted, observed, latency_after};

/// How many texts took at most so long.
#[derive(Clone, Copy)]
pub struct Bucket {
    /// The bound in seconds, as Prometheus reads it.
    pub le: &'static str,
    /// The bound in microseconds.
    pub bound: u64,
    pub count: u64,
}

/// Counts one more, where that is so. A counter that has come to 2^64 - 1 stays there.
pub(crate) fn counted(count: u64, is: bool) -> u64
    ensures { result ≡ counted count is }
{
    if is { count.saturating_add(1) } else { count }
}

impl Bucket {
    fn new(le: &'static str, bound: u64) -> Bucket {
        Bucket {
            le,
            bound,
            count: 0,
        }
    }

    /// Counts a text that took so many microseconds, where that is within the bound.
    fn observe(&mut self, microseconds: u64)
        ensures { self.new ≡ observed microseconds self.old }
    {
        self.count = counted(self.count, microseconds <= self.bound);
    }
}

/// Counts a text in each bucket whose bound it is within.
fn observe_all(buckets: &mut [Bucket], microseconds: u64)
    ensures { buckets.new ≡ map (observed microseconds) buckets.old }
{
    for bucket in buckets.iter_mut() {
        bucket.observe(microseconds);
    }
}

/// How long texts took that browsers sent for nodes: how many took at most so long, by bound, how many there were, and
/// how many microseconds all took.
#[derive(Clone, Copy)]
pub struct Latency {
    pub buckets: [Bucket; 11],
    pub count: u64,
    pub microseconds: u64,
}

impl Latency {
    pub(crate) fn new() -> Latency {
        Latency {
            buckets: [
                Bucket::new("0.005", 5_000),
                Bucket::new("0.01", 10_000),
                Bucket::new("0.025", 25_000),
                Bucket::new("0.05", 50_000),
                Bucket::new("0.1", 100_000),
                Bucket::new("0.25", 250_000),
                Bucket::new("0.5", 500_000),
                Bucket::new("1", 1_000_000),
                Bucket::new("2.5", 2_500_000),
                Bucket::new("5", 5_000_000),
                Bucket::new("10", 10_000_000),
            ],
            count: 0,
            microseconds: 0,
        }
    }

    /// Counts a text that took so many microseconds.
    pub(crate) fn observe(&mut self, microseconds: u64)
        ensures { self.new ≡ latency_after microseconds self.old }
    {
        observe_all(&mut self.buckets, microseconds);
        self.count = self.count.saturating_add(1);
        self.microseconds = self.microseconds.saturating_add(microseconds);
    }
}
