// What a caller can count on beside demand 3, as claims about the rules: a request at its wait tick is opened, and a first one after set-up; the clock turned
// in steps; the rest of longer buffers plays no part; stored cells stay within their widths. No function stands here.
#![tactic(auto)]
