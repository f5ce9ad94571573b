// One side summed up: its coefficients, set by set, and the ends of its listed starts, in slices long enough for its wires.
ghost use Rattle.verdict.specs.Working.{HoldsSummary};

#[derive(Drop)]
pub(crate) struct Summary<'a> {
    pub(crate) wires: u8,
    pub(crate) row: &'a [u16],
    pub(crate) ends: &'a [u16],
    ghost holds: { HoldsSummary wires row.now ends.now },
}
