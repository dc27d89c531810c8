//! The names that cmi5 gives to verbs, categories, extensions, types of activities and a document (cmi5 Quartz,
//! sections 9.3 to 9.6 and 10.2).

/// A unit was launched (section 9.3.1).
pub const LAUNCHED: &str = "http://adlnet.gov/expapi/verbs/launched";
/// A unit's session began (section 9.3.2).
pub const INITIALIZED: &str = "http://adlnet.gov/expapi/verbs/initialized";
/// A unit was completed (section 9.3.3).
pub const COMPLETED: &str = "http://adlnet.gov/expapi/verbs/completed";
/// A unit was passed (section 9.3.4).
pub const PASSED: &str = "http://adlnet.gov/expapi/verbs/passed";
/// A unit was failed (section 9.3.5).
pub const FAILED: &str = "http://adlnet.gov/expapi/verbs/failed";
/// A session was abandoned (section 9.3.6).
pub const ABANDONED: &str = "https://w3id.org/xapi/adl/verbs/abandoned";
/// A unit was waived (section 9.3.7).
pub const WAIVED: &str = "https://w3id.org/xapi/adl/verbs/waived";
/// A unit's session ended (section 9.3.8).
pub const TERMINATED: &str = "http://adlnet.gov/expapi/verbs/terminated";
/// A block or a course was satisfied (section 9.3.9).
pub const SATISFIED: &str = "https://w3id.org/xapi/adl/verbs/satisfied";

/// The statement is one that cmi5 defines (section 9.6.2.1).
pub const CMI5_CATEGORY: &str = "https://w3id.org/xapi/cmi5/context/categories/cmi5";
/// The statement counts for a unit's `moveOn` (section 9.6.2.2).
pub const MOVE_ON_CATEGORY: &str = "https://w3id.org/xapi/cmi5/context/categories/moveon";

/// The session (section 9.6.3.1).
pub const SESSION_ID: &str = "https://w3id.org/xapi/cmi5/context/extensions/sessionid";
/// The score that passes the unit (section 9.6.3.2).
pub const MASTERY_SCORE: &str = "https://w3id.org/xapi/cmi5/context/extensions/masteryscore";
/// What the unit was launched for (section 9.6.3.3).
pub const LAUNCH_MODE: &str = "https://w3id.org/xapi/cmi5/context/extensions/launchmode";
/// The unit's address as the course spells it (section 9.6.3.4).
pub const LAUNCH_URL: &str = "https://w3id.org/xapi/cmi5/context/extensions/launchurl";
/// What satisfies the unit (section 9.6.3.5).
pub const MOVE_ON: &str = "https://w3id.org/xapi/cmi5/context/extensions/moveon";
/// What is handed to the unit's content (section 9.6.3.6).
pub const LAUNCH_PARAMETERS: &str =
    "https://w3id.org/xapi/cmi5/context/extensions/launchparameters";

/// Why a unit was waived (section 9.5.5.2).
pub const REASON: &str = "https://w3id.org/xapi/cmi5/result/extensions/reason";

/// The activity is a block of a course (section 9.4).
pub const BLOCK_TYPE: &str = "https://w3id.org/xapi/cmi5/activitytype/block";
/// The activity is a course (section 9.4).
pub const COURSE_TYPE: &str = "https://w3id.org/xapi/cmi5/activitytype/course";

/// The state id of a unit's launch data (section 10.2).
pub const LAUNCH_DATA: &str = "LMS.LaunchData";
