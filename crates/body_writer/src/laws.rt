ghost use Rattle.std.specs.Prelude.{◌≡◌, Some};
ghost use Rattle.bosh_types.specs.declared.condition.Condition.{Condition};
ghost use Rattle.body_cutter.specs.Built.{built_text};
ghost use Rattle.body_writer.specs.declared.answer.AnswerKind.TheVariants.{Terminate};
ghost use Rattle.body_writer.specs.declared.answer.AnswerParts.{AnswerParts};
ghost use Rattle.body_writer.specs.declared.request.RequestParts.{RequestParts};
ghost use Rattle.body_writer.specs.Answer.{answer_text};
ghost use Rattle.body_writer.specs.AnswerRows.{answer_attributes};
ghost use Rattle.body_writer.specs.ReadBack.{IsAnswer, IsRequest, ReadsAs};
ghost use Rattle.body_writer.specs.Refusal.{bare_parts, refusal_text};
ghost use Rattle.body_writer.specs.Request.{request_text};
ghost use Rattle.body_writer.specs.RequestRows.{request_attributes};

/// The text of an answer is built of its attributes and its payloads, and it is cut into exactly these.
pub fn answers_read_back()
    ensures built { (parts : AnswerParts) → answer_text parts ≡ built_text (answer_attributes parts) parts.payloads }
    ensures read { (parts : AnswerParts) → IsAnswer parts → ReadsAs (answer_text parts) (answer_attributes parts) parts.payloads }
{}

/// So it is with the text of a request.
pub fn requests_read_back()
    ensures built { (parts : RequestParts) → request_text parts ≡ built_text (request_attributes parts) parts.payloads }
    ensures read { (parts : RequestParts) → IsRequest parts → ReadsAs (request_text parts) (request_attributes parts) parts.payloads }
{}

/// The text of a refusal is that of a terminal answer with its condition and nothing else.
pub fn refusals_are_answers()
    ensures { (condition : Condition) → refusal_text condition ≡ answer_text (bare_parts Terminate (Some condition)) }
{}
