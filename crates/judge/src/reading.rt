// A log that is read so far, as the type that the judging of each kind of block shares; with the laws that its proofs apply. No function stands here.
use head::Head;
use rules::Setting;
use tally::Progress;

// A log that is read so far: the progress, the setting and the seeds of block 0, whether these are the house seeds (`table`), and the head of the
// model. The caller lends the buffers.
// Kept: no plainer. `table` says something of the seeds; an Option of them would say that there are none.
#[derive(Clone, Copy)]
pub struct Reading {
    pub progress: Progress,
    pub setting: Setting,
    pub seeds: [u16; 64],
    pub table: bool,
    pub head: Head,
}
