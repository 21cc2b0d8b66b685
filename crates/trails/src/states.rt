// What has become of a trail. Open and done trails are live; a dropped one is out of the running.
#[derive(Clone, Copy, PartialEq, Eq)]
pub enum State {
    Open,
    Done,
    Dropped,
}
