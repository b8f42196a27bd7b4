ghost use Rattle.std.specs.Prelude.{◌≡◌};

/// The disks of a node: one for each of its two areas, one for the second copy of each, which only a mirrored
/// node calls, and one for the text that says whose its folder is, which is called where the settings name
/// the cluster.
#[derive(Drop)]
pub struct NodeDisks<D> {
    /// The first area.
    pub first: D,
    /// The second area.
    pub second: D,
    /// The first area's second copy.
    pub first_copy: D,
    /// The second area's second copy.
    pub second_copy: D,
    /// The folder's text.
    pub identity: D,
}

impl<D> NodeDisks<D> {
    /// The disks of these two areas, of each its first copy and its second, and that of the folder's text.
    pub(crate) fn of_areas(first: (D, D), second: (D, D), identity: D) -> NodeDisks<D>
        ensures { result ≡ record {
          first = first.0;
          second = second.0;
          first_copy = first.1;
          second_copy = second.1;
          identity = identity;
        } }
    {
        let (first, first_copy) = first;
        let (second, second_copy) = second;
        NodeDisks {
            first,
            second,
            first_copy,
            second_copy,
            identity,
        }
    }
}
