// What holds of every file and every charge.
ghost use Rattle.files.specs.TableLimits.{LimitsExactly};
ghost use Rattle.files.specs.AcceptedFiles.{AcceptedExactly};
ghost use Rattle.files.specs.RoundTrips.{WrittenStudiesReadBack, AcceptedFilesWriteBack};

// The intake accepts a file exactly when it is one N, then C, then T and F, rightly filled in and numbered, of which open and
// enter accept all; and the study is what these calls make.
pub fn accepted_files()
    ensures { AcceptedExactly }
{}

// The table book takes a charge to be within the limits exactly when it is.
pub fn table_limits()
    ensures { LimitsExactly }
{}

// A study that is written to a file and read back is the same study.
pub fn written_studies_read_back()
    ensures { WrittenStudiesReadBack }
{}

// An accepted file of N and C records alone, taken in and written back, is the same file, byte for byte.
pub fn accepted_files_write_back()
    ensures { AcceptedFilesWriteBack }
{}
