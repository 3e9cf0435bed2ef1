//! Where things stand in the picture. All lengths are in CSS pixels, from the left and from the top.

/// The height of a step's row.
const ROW: u64 = 44;

/// Where the first row begins.
const TOP: u64 = 150;

/// Where the first lane begins: left of it stand the numbers of the steps.
const LEFT: u64 = 72;

/// The width of a character of the labels, at the most.
const CHARACTER: u64 = 8;

/// The least width of a lane.
const LEAST_LANE: u64 = 72;

/// The least width of the picture, so that its head has room.
const LEAST_WIDTH: u64 = 800;

/// The sizes from which all places follow.
#[derive(Clone, Copy)]
pub(crate) struct Frame {
    /// The count of lanes: the environment's and the parts'.
    pub(crate) lanes: u64,
    /// The characters of the longest lane's name.
    pub(crate) longest_name: u64,
    /// The count of rows.
    pub(crate) rows: u64,
    /// The characters of the longest label.
    pub(crate) longest_label: u64,
}

impl Frame {
    fn lane_width(&self) -> u64 {
        self.longest_name
            .saturating_add(3)
            .saturating_mul(CHARACTER)
            .max(LEAST_LANE)
    }

    /// The middle of a lane, from the left. Lane 0 is the environment's.
    pub(crate) fn lane_middle(&self, lane: u64) -> u64 {
        let width = self.lane_width();
        lane.saturating_mul(width)
            .saturating_add(width / 2)
            .saturating_add(LEFT)
    }

    /// Where the labels begin, from the left.
    pub(crate) fn labels_left(&self) -> u64 {
        self.lanes
            .saturating_mul(self.lane_width())
            .saturating_add(LEFT + 20)
    }

    /// Where a row begins, from the top. Row 0 is the first.
    pub(crate) fn row_top(&self, row: u64) -> u64 {
        row.saturating_mul(ROW).saturating_add(TOP)
    }

    pub(crate) fn width(&self) -> u64 {
        self.longest_label
            .saturating_mul(CHARACTER)
            .saturating_add(self.labels_left())
            .saturating_add(24)
            .max(LEAST_WIDTH)
    }

    pub(crate) fn height(&self) -> u64 {
        self.row_top(self.rows).saturating_add(28)
    }
}
