// The order of openings (document 02, m): within one epoch a filter's contents depend on what it held before and on the group of openings, and not on their
// order. There is no code here; `filter::count` counts an opening.
