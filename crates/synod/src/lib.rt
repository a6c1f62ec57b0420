// The algorithm on values.
#![tactic(auto)]

use checks::Refusal;
use state::{Answer, Server};

// What a rule says: the record of the step's server as it becomes, with the answer, or a refusal.
pub type Ruling = Result<(Server, Answer), Refusal>;
