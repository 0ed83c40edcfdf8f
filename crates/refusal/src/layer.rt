ghost use Rattle.std.specs.Prelude.{◌≡◌};
ghost use Rattle.refusal.specs.Reasons.{layer_number};

/// What was called when a call was refused.
#[derive(Clone, Copy, Debug, PartialEq, Eq)]
pub enum Layer {
    /// A site image.
    Image = 1,
    /// What a group is made of: a block store, a row of replicas, a quorum rule.
    Part = 2,
    /// A replica group.
    Group = 3,
    /// A batch of requests.
    Batch = 4,
}

impl Layer {
    /// The number that stands for the layer.
    pub fn number(self) -> u8
        ensures { result ≡ layer_number self }
    {
        self as u8
    }
}
