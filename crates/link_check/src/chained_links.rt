// Links with the chains over them, of `chains.rt`: `count` links, at most 4,096, are chained by marker and by marker and corner.
ghost use Rattle.std.specs.Prelude.{◌≤◌};
ghost use Rattle.link_check.specs.declared.chains.By.TheVariants.{Marker, MarkerAndCorner};
ghost use Rattle.link_check.specs.Chains.{key_of, Chained};

#[derive(Clone, Copy)]
pub struct ChainedLinks<'a> {
    pub words: &'a [u32],
    pub count: usize,
    pub by_marker: &'a [u16; 8192],
    pub by_corner: &'a [u16; 8192],
    ghost few: { count ≤ 4096 },
    ghost marker_chained: { Chained (key_of Marker words.now) count by_marker.now },
    ghost corner_chained: { Chained (key_of MarkerAndCorner words.now) count by_corner.now },
}
