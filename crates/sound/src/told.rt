// What the calls for callers in Rattle tell of the rules' outcome, as definitions (specs/Told.antt), and the laws by which each call is shown to
// tell it. No function stands here.
