use calc_addr::Area;

/// Who is told of an area, by a number.
#[derive(Clone, Copy, Debug, PartialEq, Eq)]
pub struct Listener {
    pub area: Area,
    pub id: usize,
}
