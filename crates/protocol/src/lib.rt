// The rules of the call: acceptance, what an accepted message does, the call, demand 3 (01, Answers and After acceptance). Definitions and laws.
#![tactic(auto)]

use envelope::Refusal;
use message::Request;
