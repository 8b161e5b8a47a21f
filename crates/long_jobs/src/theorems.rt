// What the job that binarize writes is. Each theorem is carried by a function.
ghost use Rattle.long_jobs.specs.Theorems.Written.{SameStrings, WrittenAccepted};

// Each symbol that a long job names derives the same strings of terminals by the long job and by the job.
pub fn same_strings()
    ensures theorem { SameStrings }
{}

// The job passes every check of start.
pub fn written_accepted()
    ensures theorem { WrittenAccepted }
{}
