// What the checker hands back after records of a log, against the steps of the log's definition of the verdict, and the laws that lead from what a call of
// the model tells to the step of a record. No function stands here.
