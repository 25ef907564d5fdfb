// What is written is read back.
ghost use Rattle.report_data.specs.Csv.{CsvReadBack};
ghost use Rattle.report_data.specs.Json.{JsonReadBack};

/// The goals and the totals are read back from the lines of JSON.
pub fn json_read_back()
    ensures { JsonReadBack }
{}

/// The goals are read back from the rows of comma-separated values.
pub fn csv_read_back()
    ensures { CsvReadBack }
{}
