// The arrays that check fills with a block's order and lists.
ghost use Rattle.lamp.specs.Loaded.{Wide};

// The order, where each list begins, and the lists' entries, lent by whoever calls check. The positions by name and the runs are lent apart from
// them: they are written while these are read.
#[derive(Drop)]
pub struct Arrays<'a> {
    pub vs: &'a mut [u16],
    pub at: &'a mut [u16],
    pub ents: &'a mut [u16],
    pub ghost wide: { Wide vs.now at.now ents.now },
}
